//! Why `Template::parse` gave no template.
use mq_wire::NoMemory;
use std::alloc::AllocError;
use thiserror::Error;

/// Why `parse` gave no template of a kind: of the text, or for want of memory.
#[derive(Clone, Copy, Debug, PartialEq, Eq, Error)]
pub enum TemplateFault {
    /// The text hasn't the form of a template.
    #[error("the text hasn't the form of a template")]
    Syntax,
    /// The text has the form, and not exactly the two variables of its kind.
    #[error("the text hasn't exactly the two variables of its kind")]
    Variables,
    /// Memory ran out.
    #[error("memory ran out")]
    NoMemory,
}

impl From<NoMemory> for TemplateFault {
    ghost use Rattle.std.specs.Prelude.{◌≡◌};
    ghost use Rattle.mq_target.specs.declared.fault.TemplateFault.TheVariants.{NoMemory};

    ghost from_gives = { λ _ e. e ≡ NoMemory };

    fn from(_: NoMemory) -> TemplateFault {
        TemplateFault::NoMemory
    }
}

impl From<AllocError> for TemplateFault {
    ghost use Rattle.std.specs.Prelude.{◌≡◌};
    ghost use Rattle.mq_target.specs.declared.fault.TemplateFault.TheVariants.{NoMemory};

    ghost from_gives = { λ _ e. e ≡ NoMemory };

    fn from(_: AllocError) -> TemplateFault {
        TemplateFault::NoMemory
    }
}
