// The nodes that are open as the tree is walked: a stack of at most 64, the most that a pack may have.
ghost use Rattle.std.specs.Prelude.{◌≡◌, [], ◌∷◌, ◌≤◌, ◌<◌, length};
ghost use Rattle.format.specs.Node.{ancestor, closed, one_less, innermost};

use std::marker::Model;

// An open node, and how many of its children are still to come.
#[derive(Clone, Copy)]
struct OpenNode {
    node: u32,
    left: u32,
}

// The innermost stands last of the first `depth`.
#[derive(Drop)]
pub struct OpenNodes {
    nodes: [OpenNode; 64],
    depth: usize,
}

impl Model for OpenNodes {
    ghost use Rattle.std.specs.Prelude.{List, ◌≤◌};
    ghost use Rattle.format.specs.Node.{Ancestor};

    ghost Value = { List Ancestor };

    ghost use Rattle.pack.specs.Tree.{ancestors_in};

    ghost view = { λ s. ancestors_in s.depth s.nodes };

    ghost invariant = { λ s. s.depth ≤ 64 };
}

impl OpenNodes {
    pub fn new() -> Self
        ensures { result ≡ [] }
    {
        OpenNodes {
            nodes: [OpenNode { node: 0, left: 0 }; 64],
            depth: 0,
        }
    }

    pub fn depth(&self) -> usize
        ensures { (result ≡ length self.now) × (result ≤ 64) }
    {
        self.depth
    }

    // The innermost node, 0 if none is open.
    pub fn innermost(&self) -> u32
        ensures { result ≡ innermost self.now }
    {
        if self.depth == 0 {
            return 0;
        }
        self.nodes[self.depth - 1].node
    }

    // One child of the innermost has come.
    pub fn child_came(&mut self)
        ensures { self.new ≡ one_less self.old }
    {
        if 0 < self.depth {
            let left = self.nodes[self.depth - 1].left;
            self.nodes[self.depth - 1].left = left.saturating_sub(1);
        }
    }

    pub fn push(&mut self, node: u32, left: u32)
        requires { length self.old < 64 }
        ensures { self.new ≡ ancestor node left ∷ self.old }
    {
        self.nodes[self.depth] = OpenNode { node, left };
        self.depth += 1;
    }

    // Closes the nodes without a child to come, from the innermost on.
    pub fn close(&mut self)
        ensures { self.new ≡ closed self.old }
    {
        // A stack is popped: nothing says beforehand how often.
        while 0 < self.depth && self.nodes[self.depth - 1].left == 0 {
            self.depth -= 1;
        }
    }
}
