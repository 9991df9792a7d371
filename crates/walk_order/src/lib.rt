// The depth-first order of the states: a walk over links that calls itself, and writes each state that it visits.
#![tactic(auto)]

ghost use Rattle.std.specs.Prelude.{◌≡◌, List, ℕ, ◌<◌, ◌≤◌, length};
ghost use Rattle.session.specs.Layout.{section};
ghost use Rattle.listing.specs.Order.{order};
ghost use Rattle.session.specs.Reached.{linked_by};
ghost use Rattle.walk_order.specs.Walks.{WalkOf, Counted, Written, Ready, Visited, rest};
ghost use Rattle.session.specs.Limits.{max_states};

use session::MAX_STATES;

// What was visited, as a set, and the numbers of the states in the order in which they were; places past them are zero.
// An array with its length beside it, since the engine has no heap.
#[derive(Drop)]
pub struct Walk {
    pub visited: u32,
    pub states: [u8; MAX_STATES],
    pub len: usize,
}

impl Walk {
    // The state is visited and written.
    pub fn write(&mut self, state: u32)
        requires { (self.old.len < max_states) × (state < max_states) }
        ensures { Written state self.old self.new }
    {
        self.visited = bits::added(self.visited, state);
        self.states[self.len] = (state + 1) as u8;
        self.len += 1;
    }

    // Writes the state, then goes along its links in ascending order and visits each target not yet visited.
    pub fn visit(&mut self, links: &[u32], state: u32)
        requires { Ready (length links.now) state self.old }
        ensures { Visited links.now state self.old self.new }
    {
        let word = links[state as usize];
        let states = links.len() as u32;
        self.write(state);
        for i in 0..states {
            if bits::has(word, i) && !bits::has(self.visited, i) {
                self.visit(links, i);
            }
        }
    }

    // The states that the visit of State One does not reach follow in ascending number.
    pub fn follow(&mut self, states: u32)
        requires { (states ≤ max_states) × Counted states self.old }
        ensures { (xs : List ℕ) → WalkOf xs self.old → WalkOf (rest states xs) self.new }
    {
        for i in 0..states {
            let missed = !bits::has(self.visited, i);
            if missed {
                self.write(i);
            }
        }
    }
}

// The numbers of the states in depth-first order, zeros after them.
pub fn ordered(links: &[u32]) -> [u8; MAX_STATES]
    requires { (0 < length links.now) × (length links.now ≤ max_states) }
    ensures { result ≡ section max_states (order (linked_by links.now)) }
{
    let mut walk = Walk {
        visited: 0,
        states: [0; MAX_STATES],
        len: 0,
    };
    walk.visit(links, 0);
    walk.follow(links.len() as u32);
    walk.states
}
