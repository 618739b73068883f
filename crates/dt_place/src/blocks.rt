//! The block rule.

ghost use Rattle.std.specs.Prelude.{◌≡◌, ◌<◌};
ghost use Rattle.dt_place.specs.Blocks.{block_of};

/// The numbers `from..to` of piece `q`, where `n` indices are cut into `p` pieces of ceil(n / p). An empty piece is
/// `(n, n)`.
pub fn block(n: u32, p: u32, q: u32) -> (u32, u32)
    requires { q < p }
    ensures { result ≡ block_of n p q }
{
    let end = u64::from(n);
    let size = u64::from(n.div_ceil(p));
    let from = u64::from(q) * size;
    (from.min(end) as u32, (from + size).min(end) as u32)
}
