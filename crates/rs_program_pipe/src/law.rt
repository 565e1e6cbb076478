//! What holds of every connection that is served in memory.

ghost use Rattle.std.specs.Prelude.{ℕ, List};
ghost use Rattle.rs_session.specs.Stored.{SerialsRiseIn};
ghost use Rattle.rs_server.specs.declared.connection.Served.{Served};
ghost use Rattle.rs_program_pipe.specs.Memory.{IsServed};

/// In every run that [`serve_bytes`](crate::serve_bytes) tells of, the serials of each place rise in the
/// lists. So `stored_of_run` of `rs_server` applies: what was acknowledged stands once in every later list.
pub fn serials_law()
    ensures { (input : List ℕ) (now : ℕ) (served : Served) (output : List ℕ) (s : IsServed input now served output)
        → SerialsRiseIn s.exchanges }
{}
