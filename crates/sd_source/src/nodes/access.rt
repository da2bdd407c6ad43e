/// What is done to a container: to take is to read, to resolve and to push are to write.
#[derive(Clone, Copy, Debug, PartialEq, Eq)]
pub enum Access {
    Read,
    Write,
}
