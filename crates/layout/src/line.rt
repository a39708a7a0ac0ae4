// One line of a plan, and where in the plan it stands.

// What a line says.
#[derive(Clone, Copy)]
pub enum Line<'a> {
    // the whole line, as it stands in the input
    Comment(&'a [u8]),
    Problem { points: u16, edges: u16 },
    // points are counted from 0
    Edge { first: u16, second: u16 },
}

// In words of its own, where an Option would say nothing of lines. Before the problem line, or after it: then how many points and edges it says, and how many edges came.
#[derive(Clone, Copy, PartialEq, Eq, Debug)]
pub enum Place {
    Start,
    Within { points: u16, edges: u16, laid: u16 },
}
