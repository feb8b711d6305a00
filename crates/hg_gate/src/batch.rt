//! A batch: the bytes that one `append` adds to a log.
ghost use Rattle.std.specs.Prelude.{◌≡◌, ◌≤◌, length, IfOk, IfErr};
ghost use Rattle.hg_gate.specs.Batches.{IsBody};
ghost use Rattle.hg_gate.specs.declared.batch.TheConstants.{MAX_BODY_LEN};

/// The most bytes that a batch has.
pub const MAX_BODY_LEN: usize = 25_600;

/// 1 to 25,600 bytes.
#[derive(Drop)]
pub struct Batch {
    body: Vec<u8>,
    ghost some: { 1 ≤ length body.items },
    ghost fits: { length body.items ≤ MAX_BODY_LEN },
}

impl Batch {
    ghost use Rattle.hg_gate.specs.Batch.{body_of, vec_of};

    /// A batch of these bytes. Hands them back if there are none, or more than 25,600.
    pub fn new(body: Vec<u8>) -> Result<Batch, Vec<u8>>
        ensures ok { IfOk result (λ batch. IsBody body.items × (vec_of batch ≡ body)) }
        ensures err { IfErr result (λ refused. ¬ IsBody body.items × (refused ≡ body)) }
    {
        if body.is_empty() || body.len() > MAX_BODY_LEN {
            return Err(body);
        }
        Ok(Batch { body })
    }

    /// Its bytes.
    pub fn body(&self) -> &[u8]
        ensures same { result.now ≡ body_of self.now }
        ensures fits { IsBody result.now }
    {
        &self.body
    }

    /// Its bytes, in the vector that it was made of.
    pub fn into_body(self) -> Vec<u8>
        ensures { result ≡ vec_of self }
    {
        let Batch { body } = self;
        body
    }
}
