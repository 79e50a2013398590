// Standard input, read to one byte past the largest sheet and no further.
use sheet::MOST_BYTES;
use std::io::Read;

pub(crate) fn read_bounded(rt: &HostRuntime) -> anyhow::Result<Vec<u8>> {
    let mut bytes = Vec::new(rt.alloc());
    rt.stdin()
        .take(MOST_BYTES as u64 + 1)
        .read_to_end(&mut bytes)?;
    Ok(bytes)
}
