//! What a request names.
use arguments::request::Request;
use std::alloc::{AllocError, Global};

/// The file of the tree, where one is named.
pub(crate) fn tree_of<'a>(request: &Request<'a>) -> Option<&'a str> {
    match request {
        Request::May(request) => request.tree,
        Request::Check(request) | Request::Settle(request) => request.tree,
        Request::Audit(request) => request.tree,
        Request::Everybody(request) => request.tree,
        Request::Subtrees(request) => request.sources.tree(),
        Request::Explain(request) => request.tree,
        Request::Advise(request) => request.tree,
        Request::AdvisePairs(request)
        | Request::AuditPairs(request)
        | Request::ExplainPairs(request) => request.sources.tree(),
        Request::Replay(request) => request.sources.tree(),
        Request::Upgrade(request) => request.tree,
        _ => None,
    }
}

/// The file of the operations, the pairs or the subtrees, where one is named.
pub(crate) fn other_of<'a>(request: &Request<'a>) -> Option<&'a str> {
    match request {
        Request::AdvisePairs(request)
        | Request::AuditPairs(request)
        | Request::ExplainPairs(request) => request.sources.other(),
        Request::Subtrees(request) => request.sources.other(),
        Request::Replay(request) => request.sources.other(),
        _ => None,
    }
}

/// The paths, in the order in which they are looked at.
pub(crate) fn paths_of<'a>(
    alloc: Global,
    request: &Request<'a>,
) -> Result<Vec<&'a str>, AllocError> {
    match request {
        Request::May(request) => Vec::from_slice(alloc, &[request.to]),
        Request::Check(request) | Request::Settle(request) => {
            Vec::from_slice(alloc, &[request.subtree])
        }
        Request::Audit(request) => Vec::from_slice(alloc, request.subtrees.as_slice()),
        Request::Everybody(request) => Vec::from_slice(alloc, request.subtrees.as_slice()),
        Request::Explain(request) => Vec::from_slice(alloc, request.subtrees.as_slice()),
        Request::Advise(request) => Vec::from_slice(alloc, request.subtrees.as_slice()),
        Request::Replay(request) => match request.subtree {
            Some(subtree) => Vec::from_slice(alloc, &[subtree]),
            None => Ok(Vec::new(alloc)),
        },
        _ => Ok(Vec::new(alloc)),
    }
}
