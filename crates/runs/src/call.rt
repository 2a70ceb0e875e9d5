// One call on a run; a round brings its finder and its verifier. An enum and no closure, since a history names each call by its case.
#[derive(Clone, Copy)]
pub enum Call<'a, F, V> {
    Begin,
    Open(u16),
    Round(&'a F, &'a V),
    GiveUp,
}
