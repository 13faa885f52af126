//! The field of 2^16 elements.
ghost use Rattle.std.specs.Prelude.{◌≡◌, ◌<◌, ◌^◌};

/// An element of the field of 2^16 elements by 1 + x^2 + x^3 + x^5 + x^16 (EN 302 307-1, 5.3.1).
#[derive(Clone, Copy, Drop)]
pub struct Gf16 {
    value: u16,
    ghost in_range: { value < 2 ^ 16 },
}

mod arithmetic;
