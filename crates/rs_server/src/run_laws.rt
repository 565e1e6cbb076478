//! What holds of every run.

ghost use Rattle.std.specs.Prelude.{◌≡◌, ℕ, List, [], ◌∷◌, ◌++◌};
ghost use Rattle.rs_session.specs.Gate.{Extends};
ghost use Rattle.rs_packet.specs.declared.packet.Connect.{Connect};
ghost use Rattle.rs_packet.specs.declared.packet.Publish.{Publish};
ghost use Rattle.rs_packet.specs.declared.reply.Reply.{Reply};
ghost use Rattle.rs_session.specs.Stored.{MarkGrows, lists_of, AreGrowing, SerialsRiseIn, point_after, IsToldStored, IsStoredIn};
ghost use Rattle.rs_session.specs.Replay.{IsOpen, Opens, IsReplaying, IsSentInOrder};
ghost use Rattle.rs_session.specs.Points.{Point};
ghost use Rattle.rs_session.specs.Run.{Exchange, Run, IsWithinLimits};
ghost use Rattle.rs_session.specs.Sent.{SendsPublications};
ghost use Rattle.rs_session.specs.State.{State, fresh};
ghost use Rattle.rs_session.specs.declared.open.Open.{Open};
ghost use Rattle.rs_session.specs.declared.phase.Phase.TheVariants as phase;

/// Does nothing. Its contract says that along a run the gate's list only grows at its end, so what was acknowledged stays
/// in it.
#[tactic(auto, using(rs_session::proofs::Runs::run_grows))]
pub fn growth_law()
    ensures { (from to : Point State) (exchanges : List Exchange) → Run from exchanges to → Extends to.seen from.seen }
{}

/// Does nothing. Its contract says of every run of a new session that is open after its last exchange: it keeps at most
/// `MAX_SUBSCRIPTIONS` subscriptions, `RECEIVE_MAXIMUM` identifiers of QoS 2 and `MAX_WAITING` messages that wait, and no
/// more messages are unacknowledged than the quota, which is at most `MAX_QUOTA`.
pub fn limits_law()
    ensures { (assigned : List ℕ) (from to : Point State) (exchanges : List Exchange) (o : Open) → from.state ≡ fresh assigned
        → Run from exchanges to
        → to.state.phase ≡ phase.Open o → IsWithinLimits o }
{}

/// Does nothing. Its contract says of every run of a new session that a CONNECT opened: the PUBLISH packets among its
/// replies are those that its window gave, in a run of window calls that the inputs and the lists make, exchange by exchange.
pub fn replay_of_run()
    // A session that is open after some exchange was opened by the first one.
    ensures opened { (assigned : List ℕ) (from to : Point State) (before : List Exchange) (exchange : Exchange) (after : List Exchange)
        → from.state ≡ fresh assigned → Run from (before ++ exchange ∷ after) to
        → IsOpen exchange.to.state.phase → (c : Connect) × Opens c (before ++ exchange ∷ after) }
    // The calls that the exchanges make are a run of the window, so `replay_law` holds of them.
    ensures calls { (assigned : List ℕ) (from to : Point State) (exchanges : List Exchange) (c : Connect) → from.state ≡ fresh assigned
        → Run from exchanges to
        → Opens c exchanges → IsReplaying c exchanges }
    // A prefix of what they queued left the queue, and the rest waits. The PUBLISH replies are this prefix, in order, each
    // message once, less what was dropped. Never more is unacknowledged than the quota, the lesser of the client's Receive
    // Maximum and `MAX_QUOTA`.
    ensures sent { (c : Connect) (exchanges : List Exchange) (r : IsReplaying c exchanges) → IsSentInOrder c exchanges r.made }
{}

/// Does nothing. Its contract says of every run, from any point, how its lists grow, and that what it acknowledged stays in
/// them.
pub fn stored_of_run()
    // Every list from which a filter was answered or that an exchange leaves is a prefix of all such lists after it.
    ensures lists { (from to : Point State) (exchanges : List Exchange) → Run from exchanges to
        → AreGrowing (from.seen ∷ (lists_of exchanges ++ to.seen ∷ [])) }
    // If the serials of each place rise in the lists, a retained publication that the client was told is stored stands
    // once in the list that its exchange leaves, and in every later one.
    ensures publications { (from to : Point State) (before : List Exchange) (exchange : Exchange) (after : List Exchange) (o : Open)
        (p : Publish) (answer : Reply) → Run from (before ++ exchange ∷ after) to
        → SerialsRiseIn (before ++ exchange ∷ after) → (point_after from before).state.phase ≡ phase.Open o
        → IsToldStored o exchange p answer
        → IsStoredIn (point_after from before).mark exchange p (exchange.to.seen ∷ (lists_of after ++ to.seen ∷ [])) }
    // Along a run the mark's serial never falls. So two publications that were told stored are two entries.
    ensures marks { (from to : Point State) (exchanges : List Exchange) → Run from exchanges to → MarkGrows from.mark to.mark }
{}

/// Does nothing. Its contract says of every run what its gate sent to the store meanwhile, if that is given: in their order, the
/// retained publications among the inputs, each at most once, and each that the client was told is stored.
#[tactic(auto, using(crate::proofs::Sending::run_sends))]
pub fn sent_of_run()
    ensures { (from to : Point State) (exchanges : List Exchange) → Run from exchanges to → SendsPublications from exchanges to }
{}
