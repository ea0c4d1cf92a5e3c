//! Names, modes and shapes of kernels at values from outside.
use dd_kernels::{Kernel, Mode, Shape, kernel_named, shapes_fit, signature_of};
use std::test::Fail;

#[test]
fn names_modes_and_shapes(rt: HostRuntime) -> Result<(), Fail> {
    assert!(rt; kernel_named(b"fill") == Some(Kernel::Fill));
    assert!(rt; kernel_named(b"syrk_packed") == Some(Kernel::SyrkPacked));
    assert!(rt; kernel_named(b"Fill").is_none());
    assert!(rt; kernel_named(b"").is_none());
    assert!(rt; signature_of(Kernel::Axpy).scalar);
    assert!(rt;
        signature_of(Kernel::Dot).modes.as_slice()
            == [Mode::Write, Mode::Read, Mode::Read].as_slice()
    );
    let shape = |rows, cols| Shape { rows, cols };
    assert!(rt; !shapes_fit(Kernel::Copyt, &[shape(2, 3), shape(2, 3)]));
    assert!(rt; !shapes_fit(Kernel::Gemm, &[shape(2, 3), shape(2, 4)]));
    assert!(rt; shapes_fit(Kernel::Mirror, &[shape(10, 1), shape(10, 1)]));
    assert!(rt; !shapes_fit(Kernel::Mirror, &[shape(9, 1), shape(9, 1)]));
    assert!(rt; shapes_fit(Kernel::TrsmUnit, &[shape(4, 2), shape(6, 1)]));
    Ok(())
}
