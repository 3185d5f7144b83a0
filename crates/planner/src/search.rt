// Searching the lists of a given length depth first, in their order.
ghost use Rattle.std.specs.Prelude.{◌≡◌, ℕ, ◌+◌, ◌≤◌, List, [], ◌∷◌, ◌++◌, length, nat_lt};
ghost use Rattle.planner.specs.Path.{taken, passed, CanGrow, HasRoom, KeptPast};
ghost use Rattle.planner.specs.Search.{Progress, Turned, Tries, Backs, Explored};

use super::path::Path;
use model::Model;

// What one turn of the search comes to. Named cases and no `ControlFlow<bool, u16>`, in which `true` would have to mean found. The
// next action is no count of a loop: the search goes back as well as on.
#[derive(Clone, Copy)]
enum Turn {
    // The path leads to the goal.
    Found,
    // Every list was tried.
    Spent,
    // This action is the next to try at the path's end.
    Next(u16),
}

// A search through the lists of exactly `depth` actions from a state.
#[derive(Drop)]
pub(crate) struct Search<'m, M: Model> {
    pub(crate) model: &'m M,
    pub(crate) state: M::State,
    pub(crate) depth: u16,
}

impl<'m, M: Model> Search<'m, M> {
    // Answers whether a list leads to the goal. The path then is the first that does.
    pub(crate) fn explore(&self, path: &mut Path<M::State>) -> bool
        requires { HasRoom self.now.depth path.old }
        ensures explored { Explored (M.Model.meaning self.now.model.now) self.now.state self.now.depth result (taken path.new) (passed path.new) }
        ensures kept { KeptPast (self.now.depth + 1) self.now.depth path.old path.new }
    {
        path.restart(self.state);
        let mut next = 1;
        loop {
            match self.take_turn(next, path) {
                Turn::Found => return true,
                Turn::Spent => return false,
                Turn::Next(action) => next = action,
            }
        }
    }

    // One turn: tests a whole path, tries the next action, or turns back.
    fn take_turn(&self, next: u16, path: &mut Path<M::State>) -> Turn
        requires progress { Progress (M.Model.meaning self.now.model.now) self.now.state self.now.depth (taken path.old) (passed path.old) next }
        requires room { HasRoom self.now.depth path.old }
        ensures turned { Turned (M.Model.meaning self.now.model.now) self.now.state self.now.depth (taken path.old) next result (taken path.new) (passed path.new) }
        ensures kept { KeptPast (self.now.depth + 1) self.now.depth path.old path.new }
    {
        let at = path.end(self.state);
        if path.len() == usize::from(self.depth) {
            if self.model.at_goal(at) {
                return Turn::Found;
            }
            return back(path);
        }
        if self.all_tried(next) {
            return back(path);
        }
        self.forward(at, next, path)
    }

    // Whether every action was tried where `next` comes next.
    fn all_tried(&self, next: u16) -> bool
        ensures { result ≡ nat_lt (M.Model.meaning self.now.model.now).actions next }
    {
        next > self.model.actions()
    }

    // Tries the action `next` from `at`, the state at the path's end.
    fn forward(&self, at: M::State, next: u16, path: &mut Path<M::State>) -> Turn
        requires next_within { next ≤ 200 }
        requires room { CanGrow path.old }
        ensures tries { Tries ((M.Model.meaning self.now.model.now).step at next) (passed path.old) (taken path.old) next result (passed path.new) (taken path.new) }
        ensures kept { KeptPast (length (passed path.old) + 1) (length (taken path.old) + 1) path.old path.new }
    {
        match self.model.step(at, next) {
            Ok(t) => {
                path.push(next, t);
                Turn::Next(1)
            }
            Err(_) => Turn::Next(next + 1),
        }
    }
}

// Takes the last action back.
fn back<S: Copy>(path: &mut Path<S>) -> Turn
    requires { (front : List ℕ) (a : ℕ) → taken path.old ≡ front ++ (a ∷ []) → a ≤ 200 }
    ensures backs { Backs (passed path.old) (taken path.old) result (passed path.new) (taken path.new) }
    ensures kept { KeptPast 0 0 path.old path.new }
{
    match path.pop() {
        Some(action) => Turn::Next(action + 1),
        None => Turn::Spent,
    }
}
