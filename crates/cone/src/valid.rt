// Whether a cone's rows fit a table that a rotation gives, and its norm the limit.
ghost use Rattle.std.specs.Prelude.{◌≡◌, length};
ghost use Rattle.rules.specs.Cone.{is_lut_valid, validate_cone};
ghost use Rattle.nodes.specs.Store.{store_of};
ghost use Rattle.cone.specs.View.{cone_of};
ghost use Rattle.cone.specs.Sources.{Below};
ghost use Rattle.cone.specs.Valid.{validity_of};

use crate::Cone;
use nodes::store::Store;
use rules::{Reason, Settings};

// is_lut_valid: some table of period p and length at most m has the known entries.
#[tactic(auto, using(crate::specs::View::span_narrow, crate::specs::View::entries_held), unfolding(rules::specs::Cone::is_lut_valid, rules::specs::Cone::encoding, rules::specs::Cone::completed, rules::specs::Builder::completable))]
pub fn is_lut_valid(s: Settings, cone: Cone) -> bool
    ensures { result ≡ is_lut_valid s (cone_of cone) }
{
    let span = cone.span();
    span <= s.m && rotation::is_known_lut_valid(&cone.known[..span], s.p)
}

// validate_cone without its encoding check, which no cone of a mapping fails (`never_ten`).
#[tactic(auto, unfolding(crate::specs::Valid::validity_of, rules::specs::Cone::validate_cone, rules::specs::Cone::within_norm))]
pub fn validate_cone(s: Settings, store: &Store, cone: Cone) -> Result<(), Reason>
    requires { Below (length (store_of store.now)) (cone_of cone) }
    ensures { validity_of (cone_of cone) result ≡ validate_cone s (store_of store.now) (cone_of cone) }
{
    if s.norm.is_over(cone.norm2(store)) {
        return Err(Reason::OverNorm);
    }
    Ok(())
}
