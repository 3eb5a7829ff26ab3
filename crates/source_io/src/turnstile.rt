use spark_base::BodyNo;

/// A gate that workers pass. It tells nothing and changes nothing; a test's gate may hold a worker back for a while.
pub trait Turnstile: Sync {
    /// The worker, from 0, passes here directly after it claimed the body. The call always returns.
    fn claimed(&self, worker: u32, body: BodyNo);
}

/// A gate that is always open: it does nothing.
#[derive(Clone, Copy, Debug, PartialEq, Eq)]
pub struct Open;

impl Turnstile for Open {
    fn claimed(&self, _worker: u32, _body: BodyNo) {}
}
