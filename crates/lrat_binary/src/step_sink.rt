//! The consumer to which a reader delivers the steps of a proof.

ghost use Rattle.std.specs.Prelude.{MatchResult};
ghost use Rattle.lrat_text.specs.declared.step.Step.{Step};
ghost use Rattle.lrat_text.specs.Steps.{step_of};

use lrat_text::{StepRef, TextFault};

/// A consumer of steps: it is given one step after the other.
pub trait TakesSteps {
    /// Why a step is refused.
    type Fault;

    /// What must hold before each call of `take_step`, and holds after each `Ok`.
    ghost may_take: { Self → Type 0 };

    /// The relation between the consumer before a step, that step, and the consumer after it, if the step was taken.
    ghost takes: { Self → Step → Self → Type 0 };

    /// The relation between the consumer before a step, that step, the consumer after it, and the fault, if the step was refused.
    ghost refuses: { Self → Step → Self → Self.Fault → Type 0 };

    /// Takes a step, or refuses it with a fault.
    fn take_step(&mut self, step: StepRef<'_>) -> Result<(), Self::Fault>
        requires { may_take self.old }
        ensures { MatchResult result (λ _. may_take self.new × takes self.old (step_of step.entry) self.new) (λ fault. refuses self.old (step_of step.entry) self.new fault) };
}

/// Why the reader did not take a piece to its end.
#[derive(Drop)]
pub enum FeedFault<F> {
    /// The bytes spell no step from there on, or memory was refused.
    Bytes(TextFault),
    /// The consumer refused a step.
    Step(F),
}
