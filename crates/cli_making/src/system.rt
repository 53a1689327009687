/// The files of the system.
#[derive(Drop)]
pub struct System<'r, R> {
    /// What gives them.
    pub rt: &'r R,
}

impl<'r, R> System<'r, R> {
    /// Those that `rt` gives.
    pub fn new(rt: &'r R) -> System<'r, R> {
        System { rt }
    }
}
