use rand::rngs::SysRng;
use rand_core::TryRng;
use std::io;

/// The seed of a session, from the system.
pub fn drawn(rt: &HostRuntime) -> io::Result<[u8; 32]> {
    let mut seed = [0u8; 32];
    SysRng::new(rt).try_fill_bytes(&mut seed)?;
    Ok(seed)
}
