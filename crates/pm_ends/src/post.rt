use pm_message::Message;

/// A message with its sender's clock, as it goes over a link.
#[derive(Debug, Drop)]
pub struct Post {
    pub message: Message,
    pub clock: u64,
}
