//! The field of 2^14 elements.
ghost use Rattle.std.specs.Prelude.{◌≡◌, ◌<◌, ◌^◌};

/// An element of the field of 2^14 elements by 1 + x + x^3 + x^5 + x^14 (EN 302 307-1, 5.3.1).
#[derive(Clone, Copy, Drop)]
pub struct Gf14 {
    value: u16,
    ghost in_range: { value < 2 ^ 14 },
}

mod arithmetic;
