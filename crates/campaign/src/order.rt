// An order: the step that a crew is to carry out next.
#[derive(Clone, Copy, PartialEq, Eq, Debug)]
pub struct Order {
    // The action to carry out.
    pub action: u16,
    // How many steps lead to the goal, this one among them.
    pub steps: u16,
}
