use crate::shape::Shape;

/// The arguments of a kernel: one buffer for each access, in column-major order, with its shape.
#[derive(Debug, Drop)]
pub struct Args {
    pub shapes: Vec<Shape>,
    pub bufs: Vec<Vec<i64>>,
}
