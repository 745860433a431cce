// Sections by their bytes.
mod fields;
mod kinds;

const MEMORY: &str = "a5bc1114-6f64-4ede-b863-3e83ed7c83b1";

const PROCESSOR: &str = "9876ccad-47b4-4bdb-b65e-16f193c4f3db";

const PCIE: &str = "d995e954-bbc1-430f-ad91-b44dcb3c6f35";

// A validation number in 8 bytes, and behind it bytes of which each is its own offset.
fn counted(validation: u64) -> [u8; 216] {
    let mut bytes = [0u8; 216];
    for i in 8..216usize {
        bytes[i] = i as u8;
    }
    bytes[..8].copy_from_slice(&validation.to_le_bytes());
    bytes
}
