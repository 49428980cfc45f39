// The bytes of the files of a request.
use stage_file::Text;

/// The bytes of the three files of a network, and of the command's further file.
#[derive(Drop)]
pub struct Contents {
    pub stages: Text,
    pub tables: Text,
    pub arcs: Text,
    /// None where the command reads no further file.
    pub further: Text,
}
