//! Sums of information bits, a group at a time.
ghost use Rattle.std.specs.Prelude.{◌≡◌, ℕ, ◌+◌, ◌*◌, ◌%◌, ◌<◌, ◌≤◌, ◌==◌, ◌&&◌, ◌++◌, false, length};
ghost use Rattle.std.specs.List.{list_any};
ghost use Rattle.s2_bits.specs.Bits.{xor, bit_at};
ghost use Rattle.s2_mode.specs.Limits.{max_bits};
ghost use Rattle.s2_rows.specs.Rows.{AreAddresses};
ghost use Rattle.s2_matrix.specs.Sums.{sum_of};
ghost use Rattle.s2_matrix.specs.Planes.{plane_place};

use s2_bits::add_rotated;

/// `len` bits from a place on.
pub(crate) fn part(bits: &[bool], start: usize, len: usize) -> &[bool]
    requires { start + len ≤ length bits.now }
    ensures long { length result.now ≡ len }
    ensures are { (m : ℕ) → m < len → bit_at result.now m ≡ bit_at bits.now (start + m) }
{
    &bits[start..start + len]
}

/// Writes the bits twice, so that each rotation of them is one piece.
fn put_twice(twice: &mut [bool], bits: &[bool])
    requires { length twice.old ≡ 2 * length bits.now }
    ensures { twice.new ≡ bits.now ++ bits.now }
{
    let (first, second) = twice.split_at_mut(bits.len());
    first.copy_from_slice(bits);
    second.copy_from_slice(bits);
}

/// Adds a group of bits to the checks of one address of its row, which are one plane. The bits are given
/// once, and twice in one piece.
fn add_address(planes: &mut [bool], q: usize, bits: &[bool], twice: &[bool], address: usize)
    requires some { 1 ≤ q }
    requires twice { twice.now ≡ bits.now ++ bits.now }
    requires address { address < length bits.now * q }
    requires room { length bits.now * q ≤ length planes.old }
    requires few { length planes.old ≤ max_bits }
    ensures long { length planes.new ≡ length planes.old }
    ensures added { (j : ℕ) → j < length bits.now * q → bit_at planes.new (plane_place (length bits.now) q j) ≡ xor (bit_at planes.old (plane_place (length bits.now) q j)) (sum_of (λ m. ((address + m * q) % (length bits.now * q) == j) && bit_at bits.now m) (length bits.now)) }
{
    let n = bits.len();
    let piece = part(twice, n - address / q, n);
    let (_, rest) = planes.split_at_mut(address % q * n);
    let (plane, _) = rest.split_at_mut(n);
    add_rotated(plane, piece, 0);
}

/// Adds a group of bits to all its checks. `twice` has room for the bits twice.
pub(crate) fn add_row(planes: &mut [bool], q: usize, bits: &[bool], twice: &mut [bool], row: &[u32])
    requires some { 1 ≤ q }
    requires twice { length twice.old ≡ 2 * length bits.now }
    requires addresses { AreAddresses (length bits.now * q) row.now }
    requires room { length bits.now * q ≤ length planes.old }
    requires few { length planes.old ≤ max_bits }
    ensures long { length planes.new ≡ length planes.old }
    ensures added { (j : ℕ) → j < length bits.now * q → bit_at planes.new (plane_place (length bits.now) q j) ≡ xor (bit_at planes.old (plane_place (length bits.now) q j)) (sum_of (λ m. list_any (λ x. (x + m * q) % (length bits.now * q) == j) row.now && bit_at bits.now m) (length bits.now)) }
{
    put_twice(twice, bits);
    for address in row {
        add_address(planes, q, bits, twice, *address as usize);
    }
}
