// Spreads texts over buckets by their bytes.
ghost use Rattle.std.specs.Prelude.{◌≡◌, ◌<◌};
ghost use Rattle.dictionary.specs.Buckets.{mixed, bucket_of};

// The bytes of a text mixed into one number (FNV-1a).
#[tactic(auto, unfolding(crate::specs::Buckets::mixed))]
fn mix(bytes: &[u8]) -> u64
    ensures { result ≡ mixed 14695981039346656037 bytes.now }
{
    bytes
        .iter()
        .fold(14_695_981_039_346_656_037, |hash: u64, b| {
            (hash ^ u64::from(*b)).wrapping_mul(1_099_511_628_211)
        })
}

// The bucket of a text, of `size` buckets.
#[tactic(auto, unfolding(crate::specs::Buckets::bucket_of))]
pub(crate) fn bucket(bytes: &[u8], size: usize) -> usize
    requires { 0 < size }
    ensures is { result ≡ bucket_of size bytes.now }
    ensures below { result < size }
{
    ((mix(bytes) >> 24) % size as u64) as usize
}
