// The path of a search, as it stands on two trails.
ghost use Rattle.std.specs.Prelude.{◌≡◌, ◌+◌, ◌<◌, [], ◌∷◌, ◌++◌, length};
ghost use Rattle.planner.specs.Path.{taken, passed, CanGrow, KeptPast, TakesBack, last_or};
ghost use Rattle.trail.specs.Held.{room};

use trail::Trail;

// The actions taken, and the states passed, the first of them the one that the path starts from.
#[derive(Drop)]
pub(crate) struct Path<'t, 's, 'a, S> {
    pub(crate) states: &'t mut Trail<'s, S>,
    pub(crate) actions: &'t mut Trail<'a, u16>,
}

impl<'t, 's, 'a, S: Copy> Path<'t, 's, 'a, S> {
    // How many actions were taken.
    pub(crate) fn len(&mut self) -> usize
        ensures value { result ≡ length (taken self.old) }
        ensures same { self.new ≡ self.old }
    {
        self.actions.len()
    }

    // The state at the path's end; `default` where none was passed.
    #[tactic(auto, using(crate::proofs::Lasts::last_item))]
    pub(crate) fn end(&mut self, default: S) -> S
        ensures value { result ≡ last_or (passed self.old) default }
        ensures same { self.new ≡ self.old }
    {
        self.states.last().unwrap_or(default)
    }

    // Begins again at `state`, with no action taken.
    pub(crate) fn restart(&mut self, state: S)
        requires { 0 < room self.old.states.now }
        ensures taken { taken self.new ≡ [] }
        ensures passed { passed self.new ≡ state ∷ [] }
        ensures kept { KeptPast 1 0 self.old self.new }
    {
        self.actions.clear();
        self.states.clear();
        let _ = self.states.push(state);
    }

    // Goes on by an action, to a state.
    pub(crate) fn push(&mut self, action: u16, state: S)
        requires { CanGrow self.old }
        ensures taken { taken self.new ≡ taken self.old ++ (action ∷ []) }
        ensures passed { passed self.new ≡ passed self.old ++ (state ∷ []) }
        ensures kept { KeptPast (length (passed self.old) + 1) (length (taken self.old) + 1) self.old self.new }
    {
        let _ = self.states.push(state);
        let _ = self.actions.push(action);
    }

    // Takes the last action back, and tells it; nothing where none was taken.
    pub(crate) fn pop(&mut self) -> Option<u16>
        ensures taken { TakesBack self.old result self.new }
        ensures kept { KeptPast 0 0 self.old self.new }
    {
        let action = self.actions.pop()?;
        let _ = self.states.pop();
        Some(action)
    }

    // Lets the path go: the trails hold nothing.
    pub(crate) fn clear(&mut self)
        ensures taken { taken self.new ≡ [] }
        ensures passed { passed self.new ≡ [] }
        ensures kept { KeptPast 0 0 self.old self.new }
    {
        self.states.clear();
        self.actions.clear();
    }
}
