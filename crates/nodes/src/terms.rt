// The terms of a sum, as the code hands them on.
ghost use Rattle.std.specs.Prelude.{◌≡◌, ◌≤◌, length};
ghost use mathlib.Core.List.{zip_with};
ghost use Rattle.nodes.specs.Terms.{terms_in};
ghost use Rattle.nodes.specs.View.{term};

use packed::short::Short;

// A coefficient and the number of its node. A text's number is kept up to 65536, which a stored node's (`Term`) has no room for.
#[derive(Clone, Copy, Default)]
pub struct Summand {
    pub coef: i64,
    pub node: usize,
}

#[derive(Clone, Copy)]
pub struct Terms {
    pub constant: i64,
    pub terms: Short<Summand, 11>,
}

impl Terms {
    // The sum of a constant and these coefficients over these nodes.
    pub fn over(constant: i64, coefs: &[i64], nodes: &[usize]) -> Terms
        requires { (length coefs.now ≤ 11) × (length coefs.now ≡ length nodes.now) }
        ensures constant { result.constant ≡ constant }
        ensures terms { terms_in result ≡ zip_with term coefs.now nodes.now }
        ensures few { length result.terms.items ≤ 11 }
    {
        let mut terms = Short::new();
        for (&coef, &node) in coefs.iter().zip(nodes) {
            terms.push(Summand { coef, node });
        }
        Terms { constant, terms }
    }
}
