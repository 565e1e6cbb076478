//! The law of every list of calls of a window.

ghost use Rattle.std.specs.Prelude.{◌≡◌, ℕ, ◌≤◌, min, Option, Some, None, Result, List, [], ◌∷◌, ◌++◌, length};
ghost use Rattle.std.specs.FinMap as finite;
ghost use Rattle.rs_window.specs.declared.fault.Ack.{Ack};
ghost use Rattle.rs_window.specs.declared.fault.WindowFault.{WindowFault};
ghost use Rattle.rs_window.specs.Values.{OutgoingValue};
ghost use Rattle.rs_window.specs.State.{State};
ghost use Rattle.rs_window.specs.Calls.{Call, Acknowledgement, Next, Acknowledge, fresh, answer_to};
ghost use Rattle.rs_window.specs.declared.waiting.TheConstants.{MAX_WAITING};
ghost use Rattle.rs_window.specs.declared.window.TheConstants.{MAX_QUOTA};
ghost use Rattle.rs_window.specs.Replay.{Run, NoneConcerns, kind_by, AreUnacknowledged, kind_after, IsReplayed, IsFreeFor, MayGiveNothing};

/// What holds after every list of calls of a new window, refused calls included. The function does nothing: its contract is
/// the law.
pub fn replay_law()
    // the last call that concerns an identifier decides what it waits for
    ensures last { (id : ℕ) (before : List Call) (call : Call) (after : List Call) → NoneConcerns id after
        → kind_after id (before ++ call ∷ after) ≡ kind_by id call (kind_after id before) }
    // the kinds that the calls leave are those read from the list of calls
    ensures kinds { (receive_maximum packet_maximum : ℕ) (calls : List Call) (end : State)
        → Run (fresh receive_maximum packet_maximum) calls end
        → AreUnacknowledged calls end.kinds }
    // no more are unacknowledged than the initial quota
    ensures quota { (receive_maximum packet_maximum : ℕ) (calls : List Call) (end : State)
        → Run (fresh receive_maximum packet_maximum) calls end
        → finite.len end.kinds ≤ min receive_maximum MAX_QUOTA }
    // each message that was queued was given once, in order, or dropped, or it waits
    ensures replay { (receive_maximum packet_maximum : ℕ) (calls : List Call) (end : State)
        → Run (fresh receive_maximum packet_maximum) calls end
        → IsReplayed packet_maximum calls end.waiting }
    ensures few { (receive_maximum packet_maximum : ℕ) (calls : List Call) (end : State)
        → Run (fresh receive_maximum packet_maximum) calls end
        → length end.waiting ≤ MAX_WAITING }
    // an identifier is given only while it is not in use
    ensures identifiers { (receive_maximum packet_maximum : ℕ) (before after : List Call) (now : ℕ) (p : OutgoingValue) (end : State)
        → Run (fresh receive_maximum packet_maximum) (before ++ Next now (Some p) ∷ after) end
        → IsFreeFor before p.qos p.id }
    // nothing is given only if nothing waits or the quota is used up
    ensures none { (receive_maximum packet_maximum : ℕ) (before : List Call) (now : ℕ) (end : State)
        → Run (fresh receive_maximum packet_maximum) (before ++ Next now None ∷ []) end
        → MayGiveNothing packet_maximum now end.kinds (min receive_maximum MAX_QUOTA) end.waiting }
    // each acknowledgement is answered by what its identifier waited for
    ensures answers { (receive_maximum packet_maximum : ℕ) (before after : List Call) (ack : Acknowledgement) (id : ℕ)
        (answer : Result Ack WindowFault) (end : State)
        → Run (fresh receive_maximum packet_maximum) (before ++ Acknowledge ack id answer ∷ after) end
        → answer ≡ answer_to ack (kind_after id before) }
{}
