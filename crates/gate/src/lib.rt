// One gate: its sides, the attempts to compose them, and what it leaves. It leans on `attempt` and `bootstrap`.
#![tactic(auto)]

pub mod map;
pub mod sides;
