// What the words ask for, as the code holds it.
use crate::command::Command;

/// The numbers that a trial network is made from.
#[derive(Clone, Copy, Debug, PartialEq, Eq)]
pub struct TrialNumbers {
    pub seed: u64,
    /// How many stages there are.
    pub stages: u32,
    /// How many pairs of stages are drawn beside the arcs that hold the network together.
    pub extra: u32,
}

/// A command, the names of its files, the horizon in periods and the budget of ranges.
#[derive(Clone, Copy)]
pub struct Request<'a> {
    pub command: Command,
    /// The stage file, as the next two empty where the command reads no network.
    pub stages: &'a str,
    pub tables: &'a str,
    pub arcs: &'a str,
    /// The file that the command reads behind these three; empty where it reads none.
    pub further: &'a str,
    /// The name of the certificate that is to be written, if one is asked for.
    pub cert: Option<&'a str>,
    pub horizon: u16,
    /// How many ranges a search may have, if a number is asked for.
    pub ranges: Option<u32>,
    /// What the network is made from, where the command reads none.
    pub trial: Option<TrialNumbers>,
}
