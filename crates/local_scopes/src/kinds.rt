//! Kinds of bodies.

/// What a body is.
#[derive(Clone, Copy, Drop)]
pub enum BodyKind {
    /// The statements of a file.
    File,
    /// The body of a method, a class or a module, which sees no locals around it.
    Home,
    /// The body of a block.
    Block,
}
