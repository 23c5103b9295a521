// Texts that a stock is to know.
ghost use Rattle.std.specs.Prelude.{◌≡◌};
ghost use Rattle.texts.specs.Outcomes.{answers};
ghost use Rattle.span.specs.Tables.{if_all_known};

use texts::stock::{Stock, StockFault, Text};

// Refuses the first of the texts that the stock does not know.
pub fn check_all<S: Stock>(stock: &S, texts: &[Text]) -> Result<(), StockFault>
    ensures { result ≡ answers (if_all_known (S.Stock.meaning stock.now) texts.now) }
{
    for text in texts {
        stock.check(*text)?;
    }
    Ok(())
}
