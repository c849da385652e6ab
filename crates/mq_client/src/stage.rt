//! How far the tunnel of a connection of HTTP/2 has come.
use mq_capsule::Reader;
use mq_wire::Bytes;

#[derive(Drop)]
pub enum Stage {
    /// The SETTINGS of the proxy didn't come yet. This request is put once they did.
    Greeting(Bytes),
    /// The request was put, and isn't answered.
    Asked,
    /// The proxy opened the tunnel, whose data stream is read.
    Open(Reader),
}
