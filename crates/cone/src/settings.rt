// Settings that were judged.
ghost use Rattle.std.specs.Prelude.{◌≡◌, true};
ghost use Rattle.rules.specs.CircuitText.{in_limits};

use rules::Settings;

// Settings whose P, M and T are within their limits. `Settings` are also what a line says before it is judged.
#[derive(Clone, Copy)]
pub struct ValidSettings {
    pub settings: Settings,
    pub ghost limits: { in_limits settings ≡ true },
}
