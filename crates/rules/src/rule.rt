//! What every rule answers.
ghost use Rattle.std.specs.Prelude.{◌≡◌, ◌<◌, ◌≤◌};
ghost use Rattle.model.specs.Automaton.{Automaton};

/// A rule: situations, commands and states are the numbers below three bounds, some states start, some are rejecting, and each
/// question about them is asked below the bounds. Every answer is that of the rule's meaning, an automaton.
pub trait Rule {
    ghost meaning: { Self → Automaton };

    /// The number of situations.
    fn situations(&self) -> u8
        ensures value { result ≡ (meaning self.now).situations }
        ensures range { (1 ≤ result) × (result ≤ 8) };

    /// The number of commands.
    fn commands(&self) -> u8
        ensures value { result ≡ (meaning self.now).commands }
        ensures range { (1 ≤ result) × (result ≤ 8) };

    /// The number of states.
    fn states(&self) -> u8
        ensures value { result ≡ (meaning self.now).states }
        ensures range { (1 ≤ result) × (result ≤ 255) };

    /// Whether the state starts.
    fn starts(&self, state: u8) -> bool
        requires { state < (meaning self.now).states }
        ensures { result ≡ (meaning self.now).start state };

    /// Whether the state is rejecting.
    fn rejects(&self, state: u8) -> bool
        requires { state < (meaning self.now).states }
        ensures { result ≡ (meaning self.now).reject state };

    // Four numbers and no struct of them: each has a bound of its own.
    /// Whether the follower follows the state under the command in the situation.
    fn follows(&self, state: u8, command: u8, situation: u8, follower: u8) -> bool
        requires known_state { state < (meaning self.now).states }
        requires known_command { command < (meaning self.now).commands }
        requires known_situation { situation < (meaning self.now).situations }
        requires known_follower { follower < (meaning self.now).states }
        ensures { result ≡ (meaning self.now).follows state command situation follower };
}
