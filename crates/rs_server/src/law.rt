//! What holds of every input.

ghost use Rattle.std.specs.Prelude.{◌≡◌, ◌++◌, ℕ, List};
ghost use Rattle.rs_session.specs.declared.phase.Input.{Input};
ghost use Rattle.rs_server.specs.Conversation.{InputsOf, Agree};

/// The bytes determine the inputs: two lists of inputs of the same bytes agree as far as both go.
#[tactic(auto, using(crate::proofs::Inputs::inputs_agree))]
pub fn inputs_law()
    ensures { (inputs others : List Input) (bytes buffered same kept x y : List ℕ)
        → InputsOf inputs bytes buffered → InputsOf others same kept → bytes ++ x ≡ same ++ y → Agree inputs others }
{}
