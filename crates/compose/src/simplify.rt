// A cone without the sources that have no coefficient.
ghost use Rattle.std.specs.Prelude.{◌≡◌, ◌+◌, ◌<◌, slice_set};
ghost use Rattle.rules.specs.Composition.{simplify_cone};
ghost use Rattle.cone.specs.View.{cone_of};

use cone::Cone;

// The first n sources and coefficients: those that are kept so far. They are no cone yet. Arrays, since the cone that is made of them has arrays.
#[derive(Clone, Copy)]
struct Retained {
    n: usize,
    support: [usize; 11],
    coefs: [i64; 11],
}

impl Retained {
    // One source more.
    fn push(&mut self, source: usize, coef: i64)
        requires { self.old.n < 11 }
        ensures { let n = self.old.n in self.new ≡ record self.old { n = n + 1; support = slice_set self.old.support n source; coefs = slice_set self.old.coefs n coef } }
    {
        self.support[self.n] = source;
        self.coefs[self.n] = coef;
        self.n += 1;
    }
}

// simplify_cone: the sources whose coefficient is 0 left out, which changes no value.
pub fn simplify_cone(cone: Cone) -> Cone
    ensures { cone_of result ≡ simplify_cone (cone_of cone) }
{
    let mut kept = Retained {
        n: 0,
        support: [0; 11],
        coefs: [0; 11],
    };
    for (&source, &coef) in cone.sources().iter().zip(cone.coefficients()) {
        if coef != 0 {
            kept.push(source, coef);
        }
    }
    let Retained { n, support, coefs } = kept;
    let known = cone.known;
    Cone {
        n,
        support,
        coefs,
        known,
    }
}
