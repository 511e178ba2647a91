use pm_alp::Alp;
use pm_clp::Clp;

/// A process: a communication process, or that of an agent. Communication processes are numbered first.
#[derive(Debug, Drop)]
pub enum Process<'a> {
    Clp(Clp),
    Alp(Alp<'a>),
}
