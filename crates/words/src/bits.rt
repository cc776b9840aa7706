// Bits of a word that change places.
ghost use Rattle.std.specs.Prelude.{◌<◌};
ghost use Rattle.words.specs.Exchanges.{Apart, Exchanged};

// The bits that m has change places with those s further up.
pub fn exchanged(x: u64, s: usize, m: u64) -> u64
    requires { (s < 64) × Apart s m }
    ensures { Exchanged s m x result }
{
    let d = (x ^ (x >> s)) & m;
    let e = x ^ d;
    e ^ (d << s)
}
