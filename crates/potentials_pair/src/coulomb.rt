// The direct Coulomb sum over two charges.
ghost use Rattle.std.specs.Prelude.{◌≡◌};
ghost use Rattle.potentials_pair.specs.Coulomb.{neutral};

pub fn is_neutral(p: f64, q: f64) -> bool
    ensures { result ≡ neutral p q }
{
    (p == 0.0) | (q == 0.0)
}
