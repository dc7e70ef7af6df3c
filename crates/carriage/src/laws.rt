// What holds of every run of bytes: a law is the contract of a function that does nothing.
ghost use Rattle.carriage.specs.Boxes.{BoxesKeepThePromise};
ghost use Rattle.carriage.specs.Laws.{BytesKeepThePromise};

/// Boxes that hear and write bytes, which are carried between them in order, are a run of the model, so the promise holds
/// of it, and the oldest bytes of every queue are taken whole.
pub fn bytes_keep_the_promise()
    ensures { BytesKeepThePromise }
{}

/// So it is of the boxes of networks with sound relations, as `speaker::answer` answers.
pub fn boxes_keep_the_promise()
    ensures { BoxesKeepThePromise }
{}
