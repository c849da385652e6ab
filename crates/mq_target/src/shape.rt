//! Which of a template's two variables stands first.

/// The order of the two variables of a template.
#[derive(Clone, Copy, Debug, PartialEq, Eq)]
pub enum Order {
    TargetFirst,
    TargetLast,
}
