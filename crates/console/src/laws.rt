// The laws of requests and their answers, on the contract of a function, so that the check asks for their proof.
ghost use Rattle.console.specs.Promises.{ConsoleLaws};

// Bytes are read as requests in one way, and a coded signal is refused with 10, 14, 7 and 11 in this order.
pub fn console_laws_hold()
    ensures { ConsoleLaws }
{}
