// How much a caller has to lend.
ghost use Rattle.std.specs.Prelude.{◌≡◌};
ghost use Rattle.questions.specs.Questions.{blocks_for};

// B, of a recording that is lent as iq_len numbers; 0 where question 1 refuses fs. Nothing else is asked.
#[unsafe(no_mangle)]
pub extern "C" fn cancel_blocks(iq_len: usize, fs: f64) -> usize
    ensures { result ≡ blocks_for iq_len fs }
{
    questions::blocks_for(iq_len, fs)
}
