// What decides the conditions 2 to 6 of a circuit's line: what is kept of a gate's wires, and the first condition that a line meets,
// by counts of the lines before it and one test of its own. It leans on no other code but `rules`.
#![tactic(auto)]

ghost use Rattle.std.specs.Prelude.{◌≡◌, ◌||◌, not, [], ◌∷◌, leb, ltb};
ghost use Rattle.rules.specs.CircuitText.{no_node};
ghost use Rattle.rules.specs.Form.{◌when◌};
ghost use Rattle.rules.specs.Refusal.{number_met};
ghost use Rattle.text.specs.Judged.{lowest};
ghost use Rattle.circuit_conditions.specs.Wires.{with_wire};

use rules::{Reason, Wire};

// A gate's wires, of which more than two are not kept.
#[derive(Clone, Copy)]
pub enum Wires {
    None,
    One(Wire),
    Two(Wire, Wire),
    More,
}

// What is kept of a gate's wires: the wires, and whether one of them, kept or not, goes to no earlier node.
#[derive(Clone, Copy)]
pub struct GateWires {
    pub wires: Wires,
    pub astray: bool,
}

// Whether a wire goes to none of so many nodes.
#[tactic(auto, unfolding(rules::specs::CircuitText::no_node))]
pub fn is_astray(nodes: usize, wire: Wire) -> bool
    ensures { result ≡ no_node nodes wire }
{
    match wire {
        Wire::Const(_) => false,
        Wire::Node(id) => nodes <= id,
    }
}

// One wire more than what is kept, of a gate after so many nodes.
#[tactic(auto, unfolding(crate::specs::Wires::with_wire))]
pub fn with_wire(nodes: usize, kept: GateWires, wire: Wire) -> GateWires
    ensures { result ≡ with_wire nodes kept wire }
{
    let wires = match kept.wires {
        Wires::None => Wires::One(wire),
        Wires::One(first) => Wires::Two(first, wire),
        Wires::Two(_, _) | Wires::More => Wires::More,
    };
    GateWires {
        wires,
        astray: kept.astray || is_astray(nodes, wire),
    }
}

// The lines before a line: whether the `fbs` line is there, and how many inputs, gates and outputs.
#[derive(Clone, Copy)]
pub struct Counts {
    pub started: bool,
    pub inputs: usize,
    pub gates: usize,
    pub outputs: usize,
}

impl Counts {
    #[tactic(auto, unfolding(text::specs::Judged::lowest))]
    pub fn check_fbs(self, within: bool) -> Result<(), Reason>
        ensures { number_met result ≡ lowest ((2 when not within) ∷ (4 when self.started) ∷ []) }
    {
        if !within {
            return Err(Reason::BadSettings);
        }
        if self.started {
            return Err(Reason::OutOfOrder);
        }
        Ok(())
    }

    #[tactic(auto, unfolding(text::specs::Judged::lowest))]
    pub fn check_in(self, repeated: bool) -> Result<(), Reason>
        ensures { number_met result ≡ lowest ((3 when leb 32 self.inputs) ∷ (4 when (not self.started || (ltb 0 self.gates || ltb 0 self.outputs))) ∷ (5 when repeated) ∷ []) }
    {
        if self.inputs >= 32 {
            return Err(Reason::TooMany);
        }
        if !self.started || self.gates > 0 || self.outputs > 0 {
            return Err(Reason::OutOfOrder);
        }
        if repeated {
            return Err(Reason::RepeatedName);
        }
        Ok(())
    }

    // All but 7, that its bits don't match its wires.
    #[tactic(auto, unfolding(text::specs::Judged::lowest))]
    pub fn check_gate(self, astray: bool) -> Result<(), Reason>
        ensures { number_met result ≡ lowest ((3 when leb 96 self.gates) ∷ (4 when (not self.started || ltb 0 self.outputs)) ∷ (6 when astray) ∷ []) }
    {
        if self.gates >= 96 {
            return Err(Reason::TooMany);
        }
        if !self.started || self.outputs > 0 {
            return Err(Reason::OutOfOrder);
        }
        if astray {
            return Err(Reason::NoEarlierNode);
        }
        Ok(())
    }

    #[tactic(auto, unfolding(text::specs::Judged::lowest))]
    pub fn check_out(self, astray: bool) -> Result<(), Reason>
        ensures { number_met result ≡ lowest ((3 when leb 32 self.outputs) ∷ (4 when not self.started) ∷ (6 when astray) ∷ []) }
    {
        if self.outputs >= 32 {
            return Err(Reason::TooMany);
        }
        if !self.started {
            return Err(Reason::OutOfOrder);
        }
        if astray {
            return Err(Reason::NoEarlierNode);
        }
        Ok(())
    }
}
