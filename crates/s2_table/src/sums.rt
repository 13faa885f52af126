//! The digests of the standard's rows. `bench/rows_sums` makes them of row files.
ghost use Rattle.std.specs.Prelude.{◌≡◌, ◌<◌, [], get_or, map};
ghost use Rattle.s2_table.specs.Sums.{standard_sum};

use s2_mode::Mode;

/// Of normal frames, by the code rate.
pub(crate) const NORMAL: [&str; 11] = [
    "da3d028b9e78829c688e93628bbba7e33252c2b78dded12d3b664bf119e07f09", // 1/4
    "d8c957217289db6f7ff073180445c5bdf6d025ef1d3aab176452553d980e6f2e", // 1/3
    "e21e25ce32014387aa4c54a363d80b760fc54c5352b5d4d37f81be515ca5f4ee", // 2/5
    "3eeb29f244995540352c91d0dc6155dcecc3368b3d87d73a63cd51f5305f7320", // 1/2
    "b9a0b0d154cc6d23178c873f3dd3cf0bef7191b2db855e93de3e309c303dd9f9", // 3/5
    "3d68c7cfae9fc6c04e6b2f532e6b82eb5af0ec40083aa0c7b206bc4cc6e75579", // 2/3
    "266d73d9d30c3ebb309455553b76f7d0a5fb1243bd714fb010eef4debe47afdb", // 3/4
    "ddb8f23a4007835cebf763c79d7ca634794c788b08f2ad78dccbd08739b28347", // 4/5
    "97484a6f989ee324bd8a37d7b130553aee3563c13b1a4b4af41ac725fcf66774", // 5/6
    "3da00af3559d60c8d61a0fcd886380d2e0c14546802a80ddcf7efe135a2efcbd", // 8/9
    "1d0e12f476e85be1d9f184abc861b09f7c42545d871ad5ebe30fd4083d410512", // 9/10
];

/// Of short frames.
pub(crate) const SHORT: [&str; 11] = [
    "4bbfcf49906583d21d99785a9976895a83bb1d24a968a697e0e1568916a340bb", // 1/4
    "5400130514c5e545e0a983e1af0d15f176b7903fdff81c6853bf67acb723d0a6", // 1/3
    "ebec209fec1d497852938712d0b12353b76acb6949726453d5ba4afb11392db1", // 2/5
    "79d22a40aecdf897e292806fde5a040064e08b4b22e3e4b7bef54d6e55bebc37", // 1/2
    "911faa21ae69a6c08e2ab89f08bc661774fc11716a1671a63798238ef49461b6", // 3/5
    "3d9d1c2630c154d85792ed21ec890dd8a11defdbf735bd6a37d197f5bdb3336d", // 2/3
    "185d8411612509a69ed2af64b8b219bfd8256c669c44f5f5f77df054c5ce58e6", // 3/4
    "f0099efd14c7e98d799826c9d28e613a13c1a40bfe9c30a9f87171af74d31eaa", // 4/5
    "041b9ab63057ebfc67de98c28017fd6737e92f0d22bcb427d9788adf8d36f5e7", // 5/6
    "17262a5599d900c39506adf4c6557c6fcfa581aa0d1d37b472139d61fe1caedb", // 8/9
    "", // 9/10 has none
];

/// A text of a table.
fn text_at(texts: &[&'static str; 11], at: usize) -> &'static str
    requires { at < 11 }
    ensures { result.now ≡ get_or (map (λ t. t.now) texts.now) at [] }
{
    texts[at]
}

/// The SHA-256 of the standard's rows for the code of a mode.
#[tactic(auto, unfolding(crate::specs::Sums::standard_sum))]
pub(crate) fn sum_of(mode: &Mode) -> &'static str
    ensures { result.now ≡ standard_sum mode.now }
{
    let place = mode.rate_index();
    if mode.is_short() {
        text_at(&SHORT, place)
    } else {
        text_at(&NORMAL, place)
    }
}
