//! What a service is.

ghost use Rattle.std.specs.Prelude.{◌≡◌, ℕ};
ghost use Rattle.schedule.specs.declared.change.Change.{Change};

use schedule::Change;

/// Whatever carries out the changes of a day. Its meaning is a state and two functions of state and change.
pub trait Service {
    /// The states.
    ghost State: { Type 0 };
    /// The state that a value stands for.
    ghost meaning: { Self → State };
    /// The state after a change.
    ghost next: { State → Change → State };
    /// What the change is answered with.
    ghost outcome: { State → Change → ℕ × ℕ };
    /// What reading an hour and slot answers.
    ghost reads: { State → ℕ → ℕ → ℕ };

    /// Carries out a change, whatever it is, and answers its outcome.
    // kept: an outcome is a pair of numbers by a rule of the project, 0 first where the change is done.
    fn carry_out(&mut self, change: &Change) -> (u32, u32)
        ensures moves { meaning self.new ≡ next (meaning self.old) change.now }
        ensures answers { result ≡ outcome (meaning self.old) change.now };

    /// Reads an hour and slot.
    // kept: two numbers, since they come as two words or two fields, and a struct of both would be taken apart at once.
    fn read(&self, hour: u32, slot: u32) -> u32
        ensures { result ≡ reads (meaning self.now) hour slot };
}
