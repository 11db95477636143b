//! What `transcribe` is given, each by its name.

/// Whose feed is made, and of which logs.
#[derive(Drop)]
pub struct TranscribeInputs<'n, 'w> {
    /// The shard of the stream whose feed it is.
    pub shard: &'w str,
    /// The schema that the logs have its tables in; the keyspace's name unless given.
    pub schema: Option<&'w str>,
    /// The feed behind which to go on, if there is one.
    pub after: Option<Vec<u8>>,
    /// The workflow's file.
    pub workflow: Vec<u8>,
    /// The names of the logs' files, which are read one at a time.
    pub names: &'n [&'w str],
}
