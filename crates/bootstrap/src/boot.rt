// Bootstrapping a cone: its sum and its table go into the store, and the cone of the bootstrap's node takes its place.
ghost use Rattle.std.specs.Prelude.{◌≡◌, ◌+◌, ◌≤◌, ◌<◌, length};
ghost use Rattle.rules.specs.Cone.{bootstrap_table};
ghost use Rattle.rules.specs.Store.{bootstrap_cone, bootstrapped};
ghost use Rattle.cone.specs.View.{cone_of};
ghost use Rattle.cone.specs.Sources.{Stands};
ghost use Rattle.nodes.specs.Store.{store_of};
ghost use Rattle.bootstrap.specs.View.{Boots, booted_of};
ghost use Rattle.bootstrap.specs.Boot.{SumOf};

use crate::form::realign;
use cone::Cone;
use cone::settings::ValidSettings;
use nodes::store::Store;
use nodes::terms::Terms;
use rules::{Settings, Wire};

// The sum that a cone is bootstrapped from: its values less the least one.
fn sum_of(d: Cone) -> Terms
    ensures { SumOf d result }
{
    Terms::over(-d.least(), d.coefficients(), d.sources())
}

// The cone's sum and its bootstrap go into the store. Both are nodes: neither is a constant.
#[tactic(auto, using(crate::specs::Boot::making))]
fn materialize(s: Settings, store: &mut Store, d: Cone) -> Cone
    requires { (length (store_of store.old) + 2 ≤ 672) × Stands (length (store_of store.old)) d }
    ensures is { booted_of store.new result ≡ bootstrapped s (store_of store.old) (cone_of d) (bootstrap_table s.p (cone_of d)) }
    ensures stands { Boots s.p store.old store.new result }
{
    let Wire::Node(source) = lut::linear(store, s.many, sum_of(d)) else {
        unreachable!()
    };
    let Wire::Node(node) = lut::bootstrap(store, source, &d.known[..d.span()], s.p) else {
        unreachable!()
    };
    Cone::identity(node)
}

// bootstrap_cone: a cone of no source or one source stays as it was, and asks for no room in the store.
#[tactic(auto, using(crate::specs::Boot::booting, theorems::specs::SettingLimits::limits_m))]
pub fn bootstrap_cone(s: ValidSettings, store: &mut Store, c: Cone) -> Cone
    requires { (1 < c.n → length (store_of store.old) + 2 ≤ 672) × Stands (length (store_of store.old)) c }
    ensures is { booted_of store.new result ≡ bootstrap_cone s.settings (store_of store.old) (cone_of c) }
    ensures stands { Boots s.settings.p store.old store.new result }
{
    if c.n <= 1 {
        return c;
    }
    let d = realign(s.settings, store, c);
    materialize(s.settings, store, d)
}
