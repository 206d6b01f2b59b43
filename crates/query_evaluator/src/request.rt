/// A key that is asked for, and the keys that it needs and that were not asked for yet.
#[derive(Drop)]
pub struct Request<K> {
    pub key: K,
    pub wanted: Vec<K>,
}

/// What a request comes to.
#[derive(Drop)]
pub enum Step<K, A> {
    /// The answer to its key.
    Answer(A),

    /// A key that it needs and that has no answer.
    Need(K),
}
