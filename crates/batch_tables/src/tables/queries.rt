// Asking about one span.
ghost use Rattle.std.specs.Prelude.{◌≡◌, ◌<◌, length};
ghost use Rattle.texts.specs.Outcomes.{answers};
ghost use Rattle.span.specs.Tables.{if_all_known, sight_at};
ghost use Rattle.batch_tables.specs.declared.fault.BatchFault.TheVariants.{Stock as of_stock};
ghost use Rattle.batch_tables.specs.Batches.{all_spans, told_as};
ghost use Rattle.batch_tables.specs.Queries.{question_texts, reply_to, asked_known, query_batch};

use crate::fault::BatchFault;
use crate::query::{Question, Reply};
use crate::tables::BatchTables;
use span::edition::{Edition, SpanAt};
use span::questions::{has_top_level, is_measured, is_partial_snapshot};
use texts::stock::Stock;

// Refuses a key that the stock does not know.
fn check_key<S: Stock>(stock: &S, question: Question) -> Result<(), BatchFault>
    ensures { result ≡ answers (told_as of_stock (if_all_known (S.Stock.meaning stock.now) (question_texts question))) }
{
    match question {
        Question::Tag(key) | Question::Number(key) => stock.check(key)?,
        Question::TopLevel | Question::Measured | Question::PartialSnapshot => {}
    }
    Ok(())
}

// Answers a question on a span.
fn reply<E: Edition, S: Stock>(
    stock: &S,
    span: &SpanAt<'_, E::Own, E::Maps>,
    question: Question,
) -> Reply
    ensures { result ≡ reply_to (S.Stock.meaning stock.now) question (sight_at E.Edition.shown E.Edition.table (S.Stock.meaning stock.now) span.now) }
{
    match question {
        Question::Tag(key) => Reply::Tag(E::tag(stock, span, stock.bytes(key))),
        Question::Number(key) => Reply::Number(E::number(stock, span, stock.bytes(key))),
        Question::TopLevel => Reply::Flag(has_top_level::<E, S>(stock, span)),
        Question::Measured => Reply::Flag(is_measured::<E, S>(stock, span)),
        Question::PartialSnapshot => Reply::Flag(is_partial_snapshot::<E, S>(stock, span)),
    }
}

// The same, with a key that is known.
fn answered<E: Edition, S: Stock>(
    stock: &S,
    span: &SpanAt<'_, E::Own, E::Maps>,
    question: Question,
) -> Result<Reply, BatchFault>
    ensures { result ≡ answers (asked_known (S.Stock.meaning stock.now) question (sight_at E.Edition.shown E.Edition.table (S.Stock.meaning stock.now) span.now)) }
{
    check_key(stock, question)?;
    Ok(reply::<E, S>(stock, span, question))
}

impl<E: Edition> BatchTables<E> {
    // Answers a question on a span that is there.
    fn ask<S: Stock>(&self, stock: &S, span: usize, question: Question) -> Result<Reply, BatchFault>
        requires { span < length (all_spans self.now.batch) }
        ensures { result ≡ answers (query_batch E.Edition.shown (S.Stock.meaning stock.now) span question self.now) }
    {
        let span = SpanAt {
            fields: &self.spans[span],
            maps: &self.maps,
            row: span,
        };
        answered::<E, S>(stock, &span, question)
    }

    // Answers a question on one span.
    pub fn query<S: Stock>(
        &self,
        stock: &S,
        span: usize,
        question: Question,
    ) -> Result<Reply, BatchFault>
        ensures { result ≡ answers (query_batch E.Edition.shown (S.Stock.meaning stock.now) span question self.now) }
    {
        self.find_span(span)?;
        self.ask(stock, span, question)
    }
}
